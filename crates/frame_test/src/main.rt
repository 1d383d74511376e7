// Frames of each kind, a line each (paper 01, "Frames"): values to bytes, bytes to values, there
// and back, into a lent buffer, and the verdicts of the check modes. Bytes, user bytes among them,
// are written in hexadecimal, the other values in decimal.
#![tactic(auto)]

mod buffers;
mod check_modes;
mod inputs;
mod reads;
mod shown;
mod writes;

fn main(rt: HostRuntime) {
    writes::plain_syncs(&rt);
    writes::secured_syncs(&rt);
    writes::plain_fups(&rt);
    writes::secured_fups(&rt);
    reads::syncs(&rt);
    reads::fups(&rt);
    reads::reserved_bits(&rt);
    reads::lengths(&rt);
    reads::types(&rt);
    reads::there_and_back(&rt);
    buffers::lent(&rt);
    check_modes::right_and_wrong(&rt);
    check_modes::counters(&rt);
    check_modes::reserved_bits(&rt);
    check_modes::plain_with_a_check_byte(&rt);
    check_modes::no_frames(&rt);
}
