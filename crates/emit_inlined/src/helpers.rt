/// A call of a helper: which, and by position the parameters of the caller that it passes on.
#[derive(Drop)]
pub(crate) struct HelperCall {
    pub(crate) procedure: u32,
    pub(crate) params: Vec<u32>,
}
