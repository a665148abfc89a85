use crate::image::Image;
use std::sync::Arc;

/// A required step of a component: its key, which is the image, the state, the words of the inputs, the local time and the
/// local step; and the row of the run that requires it.
#[derive(Clone, Copy)]
pub struct Want<'a> {
    pub row: u64,
    pub image: &'a Arc<Image>,
    pub state: &'a [i64],
    pub inputs: &'a [i64],
    /// The local time at the beginning of the step, in local ticks.
    pub time: u64,
    /// The length of the step, in local ticks.
    pub step: u64,
}
