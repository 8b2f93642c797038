//! The store: the globals, the memory and the table of an instance (standard, section 4.2.3).

use page_memory::Pages;
use wa_types::Value;

/// The store of an instance (standard, section 4.2.3). Without a memory it has one of no pages.
#[derive(Drop)]
pub struct Store {
    pub globals: Vec<Value>,
    pub memory: Pages,
    pub table: Vec<Option<u32>>,
}
