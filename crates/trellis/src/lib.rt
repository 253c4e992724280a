// One pass over the scans: what the best sequence under a ceiling costs by one number, and the choices that lead along it.
//
// A pass goes backward. For every setting that the scan before may have, it keeps the least cost to the end and the lowest setting that
// attains it; read forward, those choices give the first of the best. It knows the two weights of a key and a ceiling, and not which criterion is asked, nor
// which law: a law is only which settings may follow one.
#![tactic(auto)]

pub mod cells;
pub mod choices;
pub mod pass;
pub mod square;
