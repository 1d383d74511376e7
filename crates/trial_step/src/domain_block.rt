// A domain block of the trial: 128 bytes of a settings block. Where a code that is read is none, the settings
// are ones that no node takes.
ghost use Rattle.std.specs.Prelude.{◌≡◌};
ghost use Rattle.trial_step.specs.DomainBlock.{
  mode_of,
  sends_as,
  ids_of,
  confirmation_time,
  clear_count,
  slave_as,
  master_as,
  domain_of,
};

use frame::DataIds;
use frame_check::CheckMode;
use settings::{DomainSettings, Role, Security, UserBytes};
use text::fields::{byte_at, long_at, sixteen_at};

// The domain that a block describes.
pub(crate) fn domain_of(block: &[u8]) -> DomainSettings
    ensures { result ≡ domain_of block.now }
{
    match byte_at(block, 0) {
        0 => DomainSettings::absent(),
        1 => slave(block, mode_of(byte_at(block, 1))),
        2 => master(block, sends_as(byte_at(block, 3))),
        _ => DomainSettings::no_settings(),
    }
}

fn slave(block: &[u8], mode: Option<CheckMode>) -> DomainSettings
    ensures { result ≡ slave_as mode block.now }
{
    match mode {
        None => DomainSettings::no_settings(),
        Some(mode) => DomainSettings {
            follow_up_time: long_at(block, 8),
            loss_time: long_at(block, 16),
            future_threshold: long_at(block, 24),
            past_threshold: long_at(block, 32),
            ids: ids_of(block),
            role: Role::Slave,
            mode,
            jump_width: byte_at(block, 2),
            hysteresis: byte_at(block, 88),
            clear_count: clear_count(byte_at(block, 7)),
            ..DomainSettings::absent()
        },
    }
}

fn master(block: &[u8], sends: Option<Security>) -> DomainSettings
    ensures { result ≡ master_as sends block.now }
{
    match sends {
        None => DomainSettings::no_settings(),
        Some(security) => DomainSettings {
            period: long_at(block, 40),
            confirmation_time: confirmation_time(long_at(block, 48)),
            ids: ids_of(block),
            role: Role::Master,
            security,
            user: UserBytes(byte_at(block, 4), byte_at(block, 5), byte_at(block, 6)),
            ..DomainSettings::absent()
        },
    }
}

// 16 SYNC DataIDs, 16 FUP DataIDs.
fn ids_of(block: &[u8]) -> DataIds
    ensures { result ≡ ids_of block.now }
{
    DataIds {
        sync: sixteen_at(block, 56),
        fup: sixteen_at(block, 72),
    }
}

// Above 32 bits it is out of range, whatever it is.
fn confirmation_time(time: u64) -> u32
    ensures { result ≡ confirmation_time time }
{
    u32::try_from(time).unwrap_or(u32::MAX)
}

// One more than the code, so that 0 is 1 and 254 is 255; 255 is 0, which is out of range.
fn clear_count(code: u8) -> u8
    ensures { result ≡ clear_count code }
{
    code.wrapping_add(1)
}

fn mode_of(code: u8) -> Option<CheckMode>
    ensures { result ≡ mode_of code }
{
    match code {
        0 => Some(CheckMode::Validated),
        1 => Some(CheckMode::NotValidated),
        2 => Some(CheckMode::Ignored),
        3 => Some(CheckMode::Optional),
        _ => None,
    }
}

fn sends_as(code: u8) -> Option<Security>
    ensures { result ≡ sends_as code }
{
    match code {
        0 => Some(Security::Plain),
        1 => Some(Security::Secured),
        _ => None,
    }
}
