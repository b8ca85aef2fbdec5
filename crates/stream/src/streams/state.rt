use rig::Page;
use session::Session;

/// A session, and the first byte of a sample whose second has not come yet.
#[derive(Drop)]
pub struct Stream<P, C> {
    pub(crate) session: Session<P, C>,
    pub(crate) low: Option<u8>,
}

/// What was heard of a sample, the low byte first, and the page that it filled, if it did.
#[derive(Clone, Copy, Debug, PartialEq, Eq)]
pub struct Heard {
    pub bytes: [u8; 2],
    pub page: Option<Page>,
}
