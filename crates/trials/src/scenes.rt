// The trials' steps.

// What is done: a cell is given a word, or a key is asked.
#[derive(Clone, Copy)]
pub enum Step {
    Put(usize, u32),
    Ask(u32, u32, u32),
}

// An input without a word, which then has one.
pub fn comes_to_be() -> [Step; 5] {
    [
        Step::Ask(0, 5, 0),
        Step::Ask(1, 5, 1),
        Step::Put(5, 42),
        Step::Ask(0, 5, 0),
        Step::Ask(1, 5, 1),
    ]
}

// How many of four cells are above 9, while one changes below and above 9.
pub fn early_cutoff() -> [Step; 10] {
    [
        Step::Put(0, 4),
        Step::Put(1, 7),
        Step::Put(2, 30),
        Step::Put(3, 12),
        Step::Ask(2, 4, 0),
        Step::Ask(2, 4, 0),
        Step::Put(1, 8),
        Step::Ask(2, 4, 0),
        Step::Put(1, 11),
        Step::Ask(2, 4, 0),
    ]
}

// A cell that changes back, without and with a key asked in between.
pub fn changes_back() -> [Step; 10] {
    [
        Step::Put(1, 7),
        Step::Put(2, 30),
        Step::Ask(2, 4, 0),
        Step::Put(1, 11),
        Step::Put(1, 7),
        Step::Ask(2, 4, 0),
        Step::Put(1, 11),
        Step::Ask(2, 4, 0),
        Step::Put(1, 7),
        Step::Ask(2, 4, 0),
    ]
}

// What is asked hangs on cell 0: cell 1 is dropped, changes, and is taken up again.
pub fn taken_up_again() -> [Step; 11] {
    [
        Step::Put(1, 5),
        Step::Put(2, 6),
        Step::Ask(4, 0, 0),
        Step::Put(0, 1),
        Step::Ask(4, 0, 0),
        Step::Put(1, 9),
        Step::Ask(4, 0, 0),
        Step::Put(0, 0),
        Step::Ask(4, 0, 0),
        Step::Put(0, 1),
        Step::Ask(4, 0, 0),
    ]
}

// A diamond of ten levels, with the cells exchanged, so that their sum is kept, and then with another sum.
pub fn diamond() -> [Step; 10] {
    [
        Step::Put(0, 1),
        Step::Put(1, 2),
        Step::Ask(3, 10, 0),
        Step::Ask(3, 10, 0),
        Step::Put(0, 2),
        Step::Put(1, 1),
        Step::Ask(3, 10, 0),
        Step::Put(1, 7),
        Step::Ask(3, 10, 0),
        Step::Ask(3, 9, 1),
    ]
}

// A key that needs more entries than there is room for leaves what was kept.
pub fn no_room() -> [Step; 6] {
    [
        Step::Put(0, 30),
        Step::Ask(2, 4, 0),
        Step::Ask(2, 4000, 0),
        Step::Ask(2, 4, 0),
        Step::Ask(2, 100, 0),
        Step::Ask(2, 4, 0),
    ]
}
