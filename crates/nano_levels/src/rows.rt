//! What stands around a part of a type in its row of fields or variants: whether the part holds
//! values of the type itself.

use std::marker::PhantomData;

/// Content or fields whose values hold no values of the type that has them.
pub struct Other<S>(PhantomData<S>);

/// Content or a field whose value holds values of the type that has it.
pub struct Within<S>(PhantomData<S>);
