//! A type and a trait with a length that is a type, as the README of the Rust crate has them.
ghost use Rattle.std.specs.Prelude.{◌≡◌};

use generic_array::{ArrayLength, GenericArray, U5};

/// Holds exactly `N` numbers.
#[derive(Drop)]
struct Foo<N: ArrayLength<i32>> {
    data: GenericArray<i32, N>,
}

/// Names a length, and gives as many numbers.
trait Bar {
    type LEN: ArrayLength<i32>;

    fn numbers(&self) -> Foo<Self::LEN>;
}

/// Gives five times its number.
#[derive(Drop)]
struct Five {
    number: i32,
}

impl Bar for Five {
    type LEN = U5;

    fn numbers(&self) -> Foo<U5> {
        let number = self.number;
        Foo {
            data: GenericArray::generate(|_| number),
        }
    }
}

/// How many numbers there are, known by the bound alone.
fn count<B: Bar>(bar: &B) -> usize
    ensures { result ≡ B.LEN.USIZE }
{
    bar.numbers().data.as_slice().len()
}

#[test]
fn a_trait_names_the_length_of_what_it_gives(rt: HostRuntime) {
    let five = Five { number: 7 };
    assert!(rt; count(&five) == 5);
    assert!(rt; five.numbers().data.as_slice() == [7; 5].as_slice());
}
