use session::order::Order;
use std::alloc::Global;
use text::count_tokens;
use tokens::Whole;

// What a session needs besides two numbers for each token and what may be kept: a header, a path and clips.
const FIXED: u64 = 6148;

// More numbers than these, a gigabyte, are not asked of the system.
const MOST: usize = 134_217_728;

// So many zeros, or none where they cannot be had: the session then says that the memory is too little.
fn numbers(heap: Global, count: usize) -> Vec<u64> {
    if count > MOST {
        return Vec::new(heap);
    }
    vec![in heap; 0u64; count].unwrap_or(Vec::new(heap))
}

// The numbers to lend for a job. A text that is refused needs none.
pub fn numbers_for(heap: Global, source: &[u8], order: Order) -> Vec<u64> {
    let tokens = count_tokens::<Whole>(source).unwrap_or(0) as u64;
    let count = tokens
        .saturating_mul(2)
        .saturating_add(FIXED)
        .saturating_add(order.kept);
    numbers(heap, count as usize)
}

// The bytes to lend: 64 rows. A width that is out of range is refused before they are looked at.
pub fn bytes_for(heap: Global, order: Order) -> Vec<u8> {
    let count = order.width.min(8192) as usize * 64;
    vec![in heap; 0u8; count].unwrap_or(Vec::new(heap))
}
