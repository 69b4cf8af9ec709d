// What a look reads before it goes along a record's children: the same type in the definition and in the code.

// A row for each kind of record.
#[derive(Clone, Copy)]
pub struct Before {
    // check_return_cached! stands at its head.
    pub checks: bool,
    // The first child is looked at last.
    pub turned: bool,
    // Is de-ordering allowed in the look that comes first? In the others it never is.
    pub first: bool,
}
