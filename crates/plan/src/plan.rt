//! A plan over places that its caller lends.
use crate::place::Place;
use grade::Grade;
use std::marker::Model;

pub mod methods;

/// The marks of a square of side 2 to the power `h`. The places 0 to `count` - 1 hold the boxes of its tree, the root in
/// place 0; the other places hold nothing of it.
#[derive(Drop)]
pub struct Plan<'a, G: Grade> {
    pub(crate) h: u32,
    // lent places and how many are in use, and no `Vec`: the library allocates nothing
    pub(crate) count: u16,
    pub(crate) places: &'a mut [Place<G>],
}

impl<'a, G: Grade> Model for Plan<'a, G> {
    ghost use Rattle.plan.specs.declared.place.Place.{Place};
    ghost use Rattle.plan.specs.Plans.{Layout, Shape};

    ghost Value = { Layout (Place G) };

    ghost view = { λ p. record { h = p.h; count = p.count; places = p.places.now } };

    ghost invariant = { λ p. Shape G.Grade.kind G.Grade.coded p.h p.count p.places.now };
}
