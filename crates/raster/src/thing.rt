// What is painted: a stored path, the stored clips that it is cut by, and the grey of its dots.
#[derive(Clone, Copy)]
pub struct Thing<'a> {
    pub path: &'a [u64],
    pub clips: &'a [u64],
    pub grey: u8,
}
