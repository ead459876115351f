//! What the server may choose and what it may answer: records that are lawful, beside some that aren't. Each is the
//! contract of a function that does nothing.

ghost use Rattle.iofd_examples.specs.ChoiceRecords as choices;
ghost use Rattle.iofd_examples.specs.DebtScript as debts;
ghost use Rattle.iofd_examples.specs.ReadyWorld as world;
ghost use Rattle.iofd_examples.specs.SecondScript as script;
ghost use Rattle.iofd_examples.specs.Words.{AreLawful, NoneIsLawful};

/// Frames, ids and addresses may be chosen, where they are free.
pub fn choices_are_free()
    ensures any { AreLawful 30 script.shared choices.choices }
    ensures frames { NoneIsLawful 30 script.shared choices.frames_that_are_reached }
    ensures ids { NoneIsLawful 30 script.shared choices.ids_that_are_used }
    ensures addresses { NoneIsLawful 30 script.shared choices.addresses_without_room }
    ensures fixed { NoneIsLawful 30 script.shared choices.other_addresses }
    ensures kinds { NoneIsLawful 30 script.shared choices.other_kinds }
{}

/// An UNMAP answers its bytes, or waits.
pub fn unmaps_answer_bytes_or_wait()
    ensures bytes { AreLawful 30 script.shared choices.bytes_of_two }
    ensures other_bytes { NoneIsLawful 30 script.shared choices.other_bytes }
    ensures nobody { NoneIsLawful 30 script.shared choices.waits_for_nobody }
    ensures waits { AreLawful 30 script.shared choices.waits }
    ensures waits_again { AreLawful 32 script.owing choices.waits }
    ensures too_early { NoneIsLawful 30 script.shared choices.bytes_too_early }
    ensures too_early_again { NoneIsLawful 32 script.owing choices.bytes_too_early }
    ensures errno { NoneIsLawful 32 script.owing choices.another_errno }
    ensures paid { AreLawful 33 script.paid choices.bytes_too_early }
    ensures first { AreLawful 18 choices.second_leaves choices.first_goes }
    ensures both { AreLawful 18 choices.second_leaves choices.waits_for_second }
    ensures forgotten { NoneIsLawful 18 choices.second_leaves choices.second_forgotten }
{}

/// A page table takes a free frame for each table that is missing.
pub fn tables_take_free_frames()
    ensures any { AreLawful 41 world.ready choices.tables }
    ensures ids { NoneIsLawful 41 world.ready choices.ids_of_tables }
    ensures others { NoneIsLawful 41 world.ready choices.other_tables }
    ensures numbers { NoneIsLawful 41 world.ready choices.numbers_of_frames }
    ensures reached { NoneIsLawful 41 world.ready choices.frames_of_others }
    ensures pin { NoneIsLawful 20 script.renewed choices.table_in_a_pins_frame }
    ensures twice { NoneIsLawful 41 world.ready choices.frame_twice }
{}

/// It gives its frames back when it goes; those below its root may go with an UNMAP, by rising number.
pub fn tables_give_frames_back()
    ensures go { AreLawful 41 world.ready choices.tables_go }
    ensures stays { NoneIsLawful 41 world.ready choices.table_stays }
    ensures others { NoneIsLawful 41 world.ready choices.others_go }
    ensures given { AreLawful 18 debts.none_owes choices.given_back }
    ensures root { NoneIsLawful 18 debts.none_owes choices.root_goes }
    ensures rising { NoneIsLawful 18 debts.none_owes choices.not_rising }
    ensures second { NoneIsLawful 18 choices.second_leaves choices.table_of_second_goes }
    ensures other { AreLawful 19 choices.beside_idle choices.other_space }
    ensures of_other { NoneIsLawful 19 choices.beside_idle choices.idle_of_other_space }
    ensures flush { NoneIsLawful 19 choices.idle choices.flush_gives }
{}

/// A refused event answers its first cause, and moves no table.
pub fn refused_records_change_nothing()
    ensures refused { AreLawful 30 script.shared choices.refusals }
    ensures causes { NoneIsLawful 30 script.shared choices.other_causes }
    ensures not_refused { NoneIsLawful 30 script.shared choices.not_refused }
    ensures not_to_be { NoneIsLawful 30 script.shared choices.not_to_be_refused }
    ensures takes { NoneIsLawful 30 script.shared choices.refused_takes }
    ensures gives { NoneIsLawful 30 script.shared choices.refused_gives }
{}
