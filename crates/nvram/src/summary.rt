// What the check for refusal 6 hands on: 01, 'Refusals from the state'.
use bank::StoreHeader;
use records::Figures;

// A Valid bank's header and what its records come to; zeros where they were not to be counted.
#[derive(Clone, Copy)]
pub struct Summary {
    pub header: StoreHeader,
    pub used: Figures,
}
