//! Stores that keep the file of a record on a disk.
pub(crate) mod file_store;
pub(crate) mod form;
pub(crate) mod log_store;
pub(crate) mod record_file;
