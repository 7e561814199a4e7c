// Plants of any sorts, side by side.
ghost use Rattle.std.specs.Prelude.{◌≡◌, ℕ, ◌<◌, ◌≤◌, List, [], ◌∷◌, length, Some, nat_lt, IfNone, IfSome};
ghost use Rattle.std.specs.List.{slice_get};
ghost use Rattle.corner_runs.specs.declared.exchanges.Exchange.{Exchange as Noted};
ghost use Rattle.map_steps.specs.States.{Standing};
ghost use Rattle.map_steps.specs.Steps.{Step, Start as Starts, to_start};
ghost use Rattle.clutch_map.specs.Views.{seen};

use clutch_map::map::Map;
use map_steps::reply::Reached;
use plant::interface::Plant;
use words::refusal::Refusal;

// Plants by their places, from 0.
pub trait Shelf {
    // The kind and the meaning of each.
    ghost plants: { Self → List Standing };

    // Whether there is a plant at the place.
    fn has(&self, place: usize) -> bool
        ensures { result ≡ nat_lt place (length (plants self.now)) };

    // Starts the map with the plant at the place; none, and nothing is done, where there is no plant.
    fn start(
        &self,
        place: usize,
        map: &mut Map<'_>,
        tray: &mut [i64],
    ) -> Option<Result<Reached, Refusal>>
        ensures absent { IfNone result (length (plants self.now) ≤ place) }
        ensures present { IfSome result (λ _. place < length (plants self.now)) }
        ensures untouched { IfNone result ((es : List Noted) (most : ℕ) → seen map.new tray.new es most ≡ seen map.old tray.old es most) }
        ensures started { IfSome result (λ r. (s : Standing) → slice_get (plants self.now) place ≡ Some s → (es : List Noted) (most : ℕ) → Step (seen map.old tray.old es most) (seen map.new tray.new es most) (Starts s.kind s.meaning) (to_start r)) };
}

// The shelf without plants.
#[derive(Drop)]
pub struct Empty;

impl Shelf for Empty {
    ghost plants = { λ _. [] };

    fn has(&self, _place: usize) -> bool {
        false
    }

    fn start(
        &self,
        _place: usize,
        _map: &mut Map<'_>,
        _tray: &mut [i64],
    ) -> Option<Result<Reached, Refusal>> {
        None
    }
}

// A plant, and those beside it.
#[derive(Drop)]
pub struct Beside<P, S> {
    pub plant: P,
    pub rest: S,
}

impl<P: Plant, S: Shelf> Shelf for Beside<P, S> {
    ghost plants = { λ s. record { kind = P.Plant.kind; meaning = P.Plant.meaning s.plant } ∷ S.Shelf.plants s.rest };

    fn has(&self, place: usize) -> bool {
        place == 0 || self.rest.has(place - 1)
    }

    fn start(
        &self,
        place: usize,
        map: &mut Map<'_>,
        tray: &mut [i64],
    ) -> Option<Result<Reached, Refusal>> {
        if place == 0 {
            Some(map.start(&self.plant, tray))
        } else {
            self.rest.start(place - 1, map, tray)
        }
    }
}
