ghost use Rattle.workload.specs.Examples.{States, Numbers, CustomersDrawn, Legs, Names, FourCustomers, FiveCustomers, SixCustomers};
ghost use Rattle.workload.specs.Ranges.{FewCustomers, ShortDistances, LateDeadlines};

/// The first draws of some seeds, and places and legs.
#[tactic(none)]
pub fn examples()
    ensures states { States }
    ensures numbers { Numbers }
    ensures customers { CustomersDrawn }
    ensures legs { Legs }
    ensures names { Names }
{}

/// The whole texts of three seeds, one with each number of customers.
#[tactic(none)]
pub fn example_texts()
    ensures four { FourCustomers }
    ensures five { FiveCustomers }
    ensures six { SixCustomers }
{}

/// What is drawn from any seed: how many customers, which distances, which deadlines.
#[tactic(none)]
pub fn ranges()
    ensures customers { FewCustomers }
    ensures distances { ShortDistances }
    ensures deadlines { LateDeadlines }
{}
