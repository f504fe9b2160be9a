//! Each call of [`noskip`](crate::noskip) answers its row of the plain call table, and leaves the
//! state that the row says. A function here makes the one call that it is named after, and its
//! contract is the row. With [`plain_agrees`](crate::laws::plain_agrees) a caller who uses these
//! functions knows what the calls of `skip` answer.

pub mod bytes;
pub mod digits;
