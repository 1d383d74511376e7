// What the cases are given: the DataIDs.
use frame::DataIds;

// No byte stands twice, so a wrong list or place shows.
pub fn ids() -> DataIds {
    let sync = *b"\x10\x11\x12\x13\x14\x15\x16\x17\x18\x19\x1a\x1b\x1c\x1d\x1e\x1f";
    let fup = *b"\xa0\xa1\xa2\xa3\xa4\xa5\xa6\xa7\xa8\xa9\xaa\xab\xac\xad\xae\xaf";
    DataIds { sync, fup }
}
