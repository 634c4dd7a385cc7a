//! What a run computes with: values, the operators of Integer, images, and items of the input.
//!
//! A `Value` is what one word of an object holds, and its `Kind` says of which sort it is; a
//! `Handle` is the number of a cell. The operators, `add` to `abs`, give their result, or `None`
//! where it isn't a value of Integer or the divisor is zero: then Ada raises Constraint_Error.
//! `image` is the attribute Image of Integer. `next_item` and `at_end` read the text of the input,
//! as Get of Ada.Integer_Text_IO and End_Of_File do. The operators, `specs/Arithmetic.antt` states,
//! and the laws of division, `specs/Division.antt` (Ada 2012, 4.5.3 to 4.5.6); images,
//! `specs/Images.antt` (3.5); and items, `specs/Items.antt` (A.10.8). No call but `image` takes
//! memory. A call takes time in proportion to the bytes that it reads or writes.
#![tactic(auto)]

mod arithmetic;
mod handle;
mod images;
mod items;
mod value;

pub use arithmetic::{abs, add, div, modulo, mul, neg, remainder, sub};
pub use handle::Handle;
pub use images::image;
pub use items::{Item, at_end, next_item};
pub use value::{Kind, Value};
