//! Circuits: how near a player is to joining his edges, and by which cells.
//!
//! **Nouns.** A *circuit* is made of a player's connections: a node for each of his elements, and a
//! *wire* for each pair with a full one, of a *conductance* that is greater the surer and shorter
//! it is. A voltage stands between his two edges. The circuit's *total* is the conductance between
//! them, and the *flow* of an empty cell the current through it. A [`Mesh`] has the wires, whatever
//! they are made of, and finds the total and the flow of each element.
//!
//! **A caller** makes a [`Circuit`] once. For each board he takes all wires away
//! ([`Circuit::clear`]), puts one for each full connection ([`Circuit::put_wire`]), has it solved
//! ([`Circuit::solve`]), and reads [`Circuit::total`] and [`Circuit::part`]. One who has other
//! conductances puts them in a mesh ([`Mesh::wires`]) and has that solved ([`Mesh::solve`]).
//!
//! **What is proved.** That each call is safe and ends; a total is at least 1, and a part at most
//! [`MOST_PART`]. So a caller may divide by it and multiply it.
//!
//! **What is only tested, or not said.** That the total and the parts are those of the circuit, up
//! to what is rounded. Whoever searches by them has to choose well by any numbers whatever.
//!
//! **Limits.** 123 elements. Only [`Circuit::make`] and [`Mesh::make`] take memory.
//!
//! Source: Anshelevich's evaluation of Hex positions by electrical resistance, here over virtual
//! connections.
//!
//! **Why so.**
//!
//! - Whole numbers make one result of a board on every machine.
//! - Elements are taken out from the last one down, each by the star-mesh rule: a node with wires
//!   a, b, .. of the sum G gives way to a wire of a·b/G between each two of its neighbours. What is
//!   left in its row are the shares a/G, from which the potentials follow upwards.
//! - Rows are worked off by whole eights, as the processor does. What that adds behind an element's
//!   own place is of no account there, and put to 0 before it counts.
//! - The numbers fit: the wires of a node add up to less than 2^31 (122 of at most 10,485,760), and
//!   a mesh makes no sum greater than that of the star was. No proof rests on that: a product is
//!   cut to its 32 bits, and a sum stops at the greatest number.
#![tactic(auto)]

mod circuits;
mod meshes;
mod wires;

pub use circuits::{Circuit, MOST_PART};
pub use meshes::Mesh;
pub use wires::Joint;
