//! XOR data and segments of it: `decode` or `stored` and bytes in hexadecimal, `encode` and samples, `chunk` and a place of a
//! segment, `front` and bytes, or `segment` and the data of chunks.

mod rows;
mod segments;

pub(crate) use crate::xor::rows::print_call;
