// A state of 128 bytes as 256 elements, and back.
ghost use Rattle.std.specs.Prelude.{◌≡◌, ◌+◌, ◌<◌, false, slice_index_or};
ghost use Rattle.jh.specs.Bit.{element as element_by};
ghost use Rattle.jh.specs.Permutation.{element_from, grouped_bit, byte_from};
ghost use Rattle.jh.specs.Permutation.{group as group_of};
ghost use Rattle.jh.specs.Permutation.{ungroup as ungroup_of};

use crate::elements::Elements;
use crate::layers::bit_of;
use std::array;

// An element by its bits, the highest first.
fn element(bits: [bool; 4]) -> u8
    ensures value { result ≡ element_by (slice_index_or bits 0 false) (slice_index_or bits 1 false) (slice_index_or bits 2 false) (slice_index_or bits 3 false) }
    ensures small { result < 16 }
{
    let [a, b, c, d] = bits.map(u8::from);
    a * 8 + b * 4 + c * 2 + d
}

// The element at place p: even places take their bits from the places i, i + 256, i + 512 and i + 768 of the state, odd ones
// from the places 128 further on.
fn element_at(state: &[u8; 128], p: usize) -> u8
    requires { p < 256 }
    ensures { result ≡ element_from state.now p }
{
    let i = p % 2 * 128 + p / 2;
    element(array::from_fn(|k| bit_of::<8>(state, i + 256 * k)))
}

// The elements of a state.
pub(crate) fn group(state: &[u8; 128]) -> Elements<256>
    ensures { result ≡ group_of state.now }
{
    Elements::new(array::from_fn(|p| element_at(state, p)))
}

// Bit j of the state that the elements were grouped from.
fn grouped_bit(elements: &[u8; 256], j: usize) -> bool
    requires { j < 1024 }
    ensures { result ≡ grouped_bit elements.now j }
{
    (elements[2 * (j % 128) + j / 128 % 2] >> (3 - j / 256)) % 2 == 1
}

// Four bits from bit j on of the state that the elements were grouped from.
fn four_bits(elements: &[u8; 256], j: usize) -> u8
    requires { j < 1021 }
    ensures value { result ≡ element_by (grouped_bit elements.now j) (grouped_bit elements.now (j + 1)) (grouped_bit elements.now (j + 2)) (grouped_bit elements.now (j + 3)) }
    ensures small { result < 16 }
{
    element(array::from_fn(|k| grouped_bit(elements, j + k)))
}

// Byte b of the state that the elements were grouped from.
fn byte_at(elements: &[u8; 256], b: usize) -> u8
    requires { b < 128 }
    ensures { result ≡ byte_from elements.now b }
{
    16 * four_bits(elements, 8 * b) + four_bits(elements, 8 * b + 4)
}

// The state that the elements were grouped from.
pub(crate) fn ungroup(elements: &Elements<256>) -> [u8; 128]
    ensures { result ≡ ungroup_of elements.now }
{
    let places = elements.places();
    array::from_fn(|b| byte_at(places, b))
}
