/// The bytes of a database file and of its log.
#[derive(Drop)]
pub struct FileBytes {
    pub log: Vec<u8>,
    pub db: Vec<u8>,
}
