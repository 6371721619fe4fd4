/// In which form a file has a value.
#[derive(Clone, Copy)]
pub enum Form {
    /// Its encoding.
    Encoding,
    /// Its JSON text.
    Json,
}
