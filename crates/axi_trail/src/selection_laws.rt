//! What holds of selected transactions, whatever a node does.

ghost use Rattle.axi_trail.specs.SelectionLaws.{NumberOfSelected, OrderOfSelected, AnsweredOfSelected, NoneHeldAnyWay, CompletedOfSelected, AllLackData, FirstLacksData};

/// The laws of selected transactions: a node with several links on a side passes some of them on each,
/// and what holds of all their requests, answers and data holds of those on one link.
pub fn laws_of_selections()
    ensures number { NumberOfSelected }

    // Answers.
    ensures order { OrderOfSelected }
    ensures answered { AnsweredOfSelected }
    ensures none { NoneHeldAnyWay }

    // Write data.
    ensures completed { CompletedOfSelected }
    ensures all_lack { AllLackData }
    ensures first_lacks { FirstLacksData }
{}
