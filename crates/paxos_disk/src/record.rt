//! The bytes of a record that is written whole, in either version.
pub(crate) mod codec;
pub(crate) mod reading;
pub(crate) mod version;
pub(crate) mod version1;
