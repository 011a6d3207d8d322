/// Where procedures go of which some stay: by position, how many before it stay; and how many in all don't.
#[derive(Drop)]
pub(crate) struct Places {
    pub(crate) before: Vec<u32>,
    pub(crate) dropped: u32,
}
