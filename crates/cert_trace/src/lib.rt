//! The evidence for an answer: the trace of its solved demand, and from it a certificate for each site.
//!
//! First it finds where objects have to be followed (`wanting`, over `answered`, `ahead` and `filing`): those of answered sites everywhere, others back from
//! the stores into them, and under fields only before loads of these. Then it takes the meets of the demand in the order in which they were solved (`tracing`):
//! for each it reads the call string that both objects share by the lines that are there (`reading`), puts the lines of the meet behind them (`meeting`), and
//! lets `cert_work` go through all until the rules give nothing more. A claim cites lines of this trace (`claiming`), and the certificate of a site is what its
//! claim needs (`evidence`).
//!
//! It knows neither texts nor how a demand is solved: it asks for the demand's meets and answers alone. Read `evidence` first, and then `tracing`. Its
//! `proofs` have the lemmas that over such lines no derivation of a field fact is shorter than the lines tell, and that each call string is read (`Held`).
#![tactic(auto)]

mod ahead;
mod answered;
mod claiming;
mod evidence;
mod filing;
mod fitting;
mod meeting;
mod pairing;
mod reading;
mod tracing;
mod wanting;

pub use evidence::Evidence;
