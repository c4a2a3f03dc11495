//! Sources with types that contain themselves or each other, and the fault of each.

/// A type contains itself in a way that is not written.
pub(crate) const NESTED: &str = r#"// nanoserde: bin de_ron
struct A {
    a: Vec<A>,
}
=> 1:19: `de_ron` stands above a type that contains itself: write `bin`, `json`, `ron` or several of them
----
// nanoserde: de_bin
struct A {
    a: Vec<A>,
}
=> 1:15: `de_bin` stands above a type that contains itself: write `bin`, `json`, `ron` or several of them
----
// nanoserde: bin json
enum A {
    B(u8, bool, i8, Vec<A>),
}
=> 3:5: `B` has more than three parts, which no variant has in JSON and RON
----
// nanoserde: json
enum A {
    B {},
    C(Vec<A>),
}
=> 3:5: `B` has braces with nothing between them, which no variant has in JSON and RON
----
// nanoserde: bin
enum A {
    B {},
    C(Vec<A>),
}
=> 3:5: `B` has braces with nothing between them, which no variant has of an enum that contains itself
----
// nanoserde: bin
struct A<T> {
    a: Vec<A>,
    b: T,
}
=> 3:12: `A` stands in itself with other types in place of its type parameters
----
// nanoserde: bin
struct A<T> {
    a: Vec<A<u8>>,
    b: T,
}
=> 3:12: `A` stands in itself with other types in place of its type parameters
----
// nanoserde: bin
struct A<T, U> {
    a: Vec<A<U, T>>,
    b: T,
    c: U,
}
=> 3:12: `A` stands in itself with other types in place of its type parameters
----
// nanoserde: bin
struct A<T: Copy> {
    a: Vec<A<T>>,
    b: T,
}
=> 2:10: `T` has a bound in a type that contains itself
----
// nanoserde: bin
#[cycle(n)]
struct A<T> {
    a: Vec<B<T>>,
    b: T,
}

// nanoserde: bin
#[cycle(n)]
enum B<T> {
    C(Box<A<T>>),
    D(T),
}
=> 3:10: `T` is a type parameter of one of types that contain each other
----
// nanoserde: bin
struct A(Vec<A>);
=> 2:8: `A` is a tuple struct that contains itself
----
// nanoserde: bin
struct A {
    a: Option<A>,
}
=> 3:15: `A` stands in itself with no `Box`, no `Vec` and no `BTreeMap`
----
// nanoserde: bin
struct A {
    a: Vec<Option<Box<A>>>,
}
=> 3:8: `Vec` has an `Option` of the type that contains itself within it
----
use super::*;

// nanoserde: bin
struct A {
    a: Vec<A>,
    b: B,
}
=> 6:8: `B` is another user-defined type in one that contains itself
----
// nanoserde: bin
struct A {
    a: Vec<A>,
    b: Option<C>,
}

// nanoserde: bin
struct B {
    b: Vec<B>,
}

// nanoserde: bin
struct C(B, u8);
=> 4:15: `C` contains itself, or has a part that does
----
use crate::B;

// nanoserde: bin
struct A {
    a: Vec<A>,
    b: Option<B>,
}
=> 6:15: `B` is another user-defined type in one that contains itself
----
use crate::b::{C as B, D};

// nanoserde: bin
enum A {
    B(Box<A>, D),
    C(B),
}
=> 6:7: `B` is another user-defined type in one that contains itself
----
// nanoserde: bin
struct A {
    a: Vec<A>,
    // nanoserde: default
    b: Option<u8>,
}
=> 4:19: `default` stands above an `Option` in a type that contains itself
----
// nanoserde: json
struct A {
    a: Vec<A>,
    // nanoserde: default
    b: Box<u8>,
}
=> 4:19: `default` is in a type that contains itself for a number, `bool`, `()`, a `String`
----
use crate::b::{B, C};

// nanoserde: json
enum A {
    B { a: Vec<A> },
    C {
        // nanoserde: default = "C"
        c: B,
    },
}
=> 7:33: `"C"` is no number, boolean or text of the field's type
----
// nanoserde: ron
struct A {
    a: Vec<A>,
    // nanoserde: default = "256"
    b: u8,
}
=> 4:29: `"256"` is no number of the field's type
----
// nanoserde: bin
struct A {
    // nanoserde: skip
    a: Option<Box<A>>,
}
=> 3:19: `skip` stands in a type that contains itself
----
// nanoserde: bin
struct A {
    a: Vec<A>,
    // nanoserde: alias = "c"
    b: u8,
}
=> 4:27: `"c"` stands in a type that contains itself
----
// nanoserde: json
struct A {
    // nanoserde: rename = "größe"
    a: Vec<A>,
}
=> 3:28: `"größe"` is beyond ASCII, and stands in a type that contains itself
----
// nanoserde: bin
enum A {
    // nanoserde: rename = "größe"
    B(Vec<A>),
}
=> 3:28: `"größe"` is beyond ASCII, and stands in a type that contains itself
----
// nanoserde: json
enum A {
    B {
        a: Vec<A>,
        // nanoserde: rename = "名前"
        b: u8,
    },
}
=> 5:32: `"名前"` is beyond ASCII, and stands in a type that contains itself
----
// nanoserde: bin
struct A(u8, u16, u32, u64, Vec<A>);
=> 2:8: `A` is a tuple struct that contains itself
----
// nanoserde: bin
struct A {
    a: Vec<A>,
    // nanoserde: skip, default = "x"
    b: String,
}
=> 4:19: `skip` stands in a type that contains itself
----
// nanoserde: bin
struct A {
    a: Vec<Self>,
}
=> 3:12: `Self` stands for the type around it
----
// nanoserde: bin, levels = "0"
struct A {
    a: Vec<A>,
}
=> 1:29: `"0"` is no number of levels: that is one from 1 to 128
----
// nanoserde: json levels = "129"
struct A {
    a: Vec<A>,
}
=> 1:29: `"129"` is no number of levels
----
// nanoserde: json levels = "064"
struct A {
    a: Vec<A>,
}
=> 1:29: `"064"` is no number of levels
----
// nanoserde: ron levels = "many"
struct A {
    a: Vec<A>,
}
=> 1:28: `"many"` is no number of levels
----
// nanoserde: ron levels
struct A {
    a: Vec<A>,
}
=> 1:25: the end of the line stands where `=` and a text are wanted
----
// nanoserde: bin levels = "3", levels = "3"
struct A {
    a: Vec<A>,
}
=> 1:33: `levels` stands twice
----
// nanoserde: bin json, levels = "64"
struct A {
    a: Vec<u8>,
}
=> 1:34: `"64"` is for a type that contains itself, and this one does not
----
// nanoserde: bin
struct A {
    // nanoserde: levels = "64"
    a: Vec<A>,
}
=> 3:19: `levels` stands only above a struct or an enum"#;
