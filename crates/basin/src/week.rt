// What the week in one call hands back: document 02, No. 2. The call stands in the crate `week`.
use crate::step::Report;
use common::refusal::Refused;

// How many steps were accepted, their reports together (sums, and the last one's content), and why and where the one after them was refused. By
// default none was taken, and none refused.
#[derive(Clone, Copy, Default)]
pub struct Week {
    pub count: u64,
    pub report: Report,
    pub refusal: Option<Refused>,
}
