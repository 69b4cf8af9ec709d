// The tally of a run: how many visits and looks were made.

#[derive(Clone, Copy)]
pub struct Tally {
    pub visits: u64,
    pub looks: u64,
}
