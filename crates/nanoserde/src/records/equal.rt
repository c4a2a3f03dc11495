//! Structs whose `==` is exact: what is written of one is read back as one that is equal to it.

use crate::laws::equal_records_mean_the_same;
use crate::records::item::Item;
use nano_schema::StructSchema;
use nano_value::ExactEq;

impl ExactEq for Item {
    fn eq_agrees() {
        equal_records_mean_the_same::<Self, <Self as StructSchema>::Values>();
    }
}
