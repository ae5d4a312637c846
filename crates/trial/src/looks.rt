// Looks for a task's last event in a part of the records, with their numbers written by hand.
use crate::recordings::put_events;
use calls::looks::try_found;
use rows::bytes::{Bytes, at, part_of};
use rows::tally::Trial;
use rows::text::{section, value};
use second::Look;

// `last TASK FROM TO | EVENTS | found RECORD READ` or `.. | none READ`: in the bytes of the records
// from one place to another. One space stands behind the bar: the byte after it says which of the two it is.
pub(crate) fn try_last(trial: &mut Trial, row: &[u8]) {
    let mut bytes = Bytes::<400>::new();
    let head = section(row, 0);
    put_events(&mut bytes, section(row, 1));
    let part = part_of(bytes.all(), value(head, 2), value(head, 3));
    let s = section(row, 2);
    let look = match at(s, 1) {
        b'f' => Look {
            last: Some(value(s, 1)),
            read: value(s, 2),
        },
        _ => Look {
            last: None,
            read: value(s, 1),
        },
    };
    try_found(trial, part, value(head, 1), look);
}

// `sevens LENGTH RECORDS`: a part of so many bytes and n whole records, all of task 7, which is found in the
// last record. With another task in the first record, that one is found there, and a third one nowhere.
pub(crate) fn try_sevens(trial: &mut Trial, head: &[u8]) {
    let mut bytes = [7u8; 262152];
    let length = value(head, 1);
    let n = value::<usize>(head, 2);
    let last = Look {
        last: n.checked_sub(1),
        read: n.min(1),
    };
    try_found(trial, part_of(&bytes, 0, length), 7, last);
    bytes[0] = 1;
    let part = part_of(&bytes, 0, length);
    let first = Look {
        last: last.last.map(|_| 0),
        read: n,
    };
    try_found(trial, part, 1, first);
    let none = Look {
        last: None,
        read: n,
    };
    try_found(trial, part, 9, none);
}
