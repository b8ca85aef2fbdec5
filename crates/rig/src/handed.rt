use crate::parts::OpenWave;
use crate::refusals::Refusal;

/// An open wave that was refused, handed back to the caller, who has still to answer or withdraw it.
pub struct HandedBack {
    pub wave: OpenWave,
    pub refusal: Refusal,
}
