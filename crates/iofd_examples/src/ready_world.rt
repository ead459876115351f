//! The world in which much stands ready to be attached is one that a run leaves. Each is the contract of a function
//! that does nothing.

ghost use Rattle.std.specs.Prelude.{◌≡◌};
ghost use Rattle.iofd_examples.specs.ReadyWorld as world;
ghost use Rattle.iofd_steps.specs.Run.{IsRun, IsRunFrom, world_from, world_of};

/// The pieces of the run. The position is that of a piece's first record.
pub fn ready_world_is_reached()
    ensures objects { IsRun world.settings world.pages_and_objects }
    ensures areas { IsRunFrom 18 world.with_objects world.areas_and_ranges }
    ensures page_tables { IsRunFrom 29 world.with_areas world.page_tables }
    ensures allocating { IsRunFrom 41 world.ready world.allocating }
{}

/// And the worlds that they leave.
pub fn ready_world_is_left()
    ensures objects { world_of world.settings world.pages_and_objects ≡ world.with_objects }
    ensures areas { world_from 18 world.with_objects world.areas_and_ranges ≡ world.with_areas }
    ensures ready { world_from 29 world.with_areas world.page_tables ≡ world.ready }
    ensures allocated { world_from 41 world.ready world.allocating ≡ world.allocated }
{}
