// What answers are made of: texts, numbers, hexadecimal digits, refusals, and what is wrong with a line.
#![tactic(auto)]

mod render;

pub use render::{
    put, put_decimal, put_first, put_hex, put_number, say, say_fault, say_refusal, say_three,
};
