//! One of the stores of this library, chosen while a program runs.
use chained::types::Chained;
use flat::types::Flat;

#[derive(Drop)]
pub enum AnyStore {
    Flat(Flat),
    Chained(Chained),
}
