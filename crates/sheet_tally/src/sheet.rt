// The sheet (paper 02, request 13): a tally for each domain, and the count of all other records.
ghost use Rattle.std.specs.Prelude.{◌≡◌};
ghost use Rattle.sheet_tally.specs.Sheet.{no_sheet, sheet_with};

use crate::Tally;
use crate::entry::Entry;
use settings::NodeSettings;
use text::pieces::next_item;

#[derive(Clone, Copy)]
pub struct Sheet {
    pub tallies: [Tally; Sheet::DOMAINS],
    // Held at the last number of 64 bits.
    pub other: u64,
}

impl Sheet {
    pub const DOMAINS: usize = NodeSettings::DOMAINS;

    // Of no record.
    pub fn new() -> Sheet
        ensures { result ≡ no_sheet }
    {
        Sheet {
            tallies: [Tally::new(); Sheet::DOMAINS],
            other: 0,
        }
    }

    // With one record more: `None` is one of the others.
    pub fn with(mut self, entry: Option<Entry>) -> Sheet
        ensures { result ≡ sheet_with self entry }
    {
        match entry {
            Some(entry) => {
                let at = entry.named as usize % Sheet::DOMAINS;
                let tally = self.tallies[at];
                self.tallies[at] = tally.counted(entry.answer);
                self
            }
            None => {
                self.other = next_item(self.other);
                self
            }
        }
    }
}
