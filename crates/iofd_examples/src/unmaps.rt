//! UNMAPs that wait, and how often they did. Each is the contract of a function that does nothing.

ghost use Rattle.std.specs.Prelude.{◌≡◌};
ghost use Rattle.iofd_examples.specs.CountedUnmaps as unmaps;
ghost use Rattle.iofd_examples.specs.Words.{NoneIsLawful};
ghost use Rattle.iofd_steps.specs.Run.{IsRunFrom, world_from};

/// The first makes 1 of none; the hundredth is told to call again, and the next one that this leads nowhere.
pub fn unmaps_are_counted()
    ensures first { IsRunFrom 11 unmaps.live unmaps.again }
    ensures first_leaves { world_from 11 unmaps.live unmaps.again ≡ unmaps.one }
    ensures last { IsRunFrom 110 unmaps.ninety_nine unmaps.last_two }
    ensures last_leave { world_from 110 unmaps.ninety_nine unmaps.last_two ≡ unmaps.hundred }
    ensures hundred { world_from 11 unmaps.live unmaps.hundred_times ≡ unmaps.all_owe }
{}

/// Of two areas the one that has seen most counts for both; once it has seen a hundred, none of them counts on.
pub fn unmaps_of_two_areas_are_counted()
    ensures both { IsRunFrom 20 unmaps.five_and_seven unmaps.both_again }
    ensures both_leave { world_from 20 unmaps.five_and_seven unmaps.both_again ≡ unmaps.both_eight }
    ensures one { IsRunFrom 20 unmaps.five_and_seven unmaps.again }
    ensures one_leaves { world_from 20 unmaps.five_and_seven unmaps.again ≡ unmaps.six_and_seven }
    ensures hundredth { IsRunFrom 20 unmaps.ninety_nine_and_forty unmaps.both_again }
    ensures hundredth_leaves { world_from 20 unmaps.ninety_nine_and_forty unmaps.both_again ≡ unmaps.both_hundred }
    ensures most { IsRunFrom 20 unmaps.hundred_and_forty unmaps.both_lead_nowhere }
    ensures most_stay { world_from 20 unmaps.hundred_and_forty unmaps.both_lead_nowhere ≡ unmaps.hundred_and_forty }
    ensures paid { IsRunFrom 20 unmaps.paid_hundred_and_forty unmaps.both_lead_nowhere }
    ensures paid_stay { world_from 20 unmaps.paid_hundred_and_forty unmaps.both_lead_nowhere
        ≡ unmaps.paid_hundred_and_forty }
    // an area that begins to leave then has seen none
    ensures begins { IsRunFrom 20 unmaps.hundred unmaps.both_lead_nowhere }
    ensures begins_with_none { world_from 20 unmaps.hundred unmaps.both_lead_nowhere ≡ unmaps.hundred_and_none }
    ensures then { IsRunFrom 21 unmaps.hundred_and_none unmaps.second_again }
    ensures then_one { world_from 21 unmaps.hundred_and_none unmaps.second_again ≡ unmaps.hundred_and_one }
    // beside one that owes nothing, too, which would go alone
    ensures beside { IsRunFrom 20 unmaps.paid_hundred unmaps.both_lead_nowhere }
    ensures beside_leaves { world_from 20 unmaps.paid_hundred unmaps.both_lead_nowhere
        ≡ unmaps.paid_hundred_and_none }
    ensures goes { IsRunFrom 20 unmaps.paid_hundred unmaps.goes }
{}

/// No UNMAP is answered otherwise.
pub fn other_answers_are_unlawful()
    ensures early { NoneIsLawful 20 unmaps.ninety_nine unmaps.leads_nowhere }
    ensures late { NoneIsLawful 20 unmaps.hundred unmaps.again }
    ensures both { NoneIsLawful 20 unmaps.hundred_and_forty unmaps.both_again }
    ensures nobody { NoneIsLawful 20 unmaps.paid_hundred unmaps.leads_nowhere }
    ensures nobody_again { NoneIsLawful 20 unmaps.paid_hundred unmaps.again }
    ensures bytes { NoneIsLawful 20 unmaps.hundred unmaps.goes }
    ensures refused { NoneIsLawful 20 unmaps.hundred unmaps.refused_as_pending }
    // as if the tries didn't move
    ensures still { IsRunFrom 20 unmaps.ninety_nine unmaps.twice_again → ⊥ }
{}
