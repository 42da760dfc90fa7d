// A source and a sink, one call of which fails.

use far_io::{MemSink, MemSource};
use ratio128::Memory;
use std::alloc::{AllocError, Global};

pub fn failing_source(alloc: Global, text: &str, call: u32) -> Result<MemSource, AllocError> {
    Ok(MemSource::new(text.as_bytes().to_vec(alloc)?, vec![in alloc; call]?))
}

pub fn failing_sink(alloc: Global, room: usize, call: u32) -> Result<MemSink, Memory> {
    MemSink::with_room(alloc, room, vec![in alloc; call]?)
}
