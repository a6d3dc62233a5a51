//! Studies of a case: sweeps over the contribution to the least approach and studies of the prices
//! of utilities, by several workers, and samples, which are cases out of the draws of a generator,
//! with their targets and least cost.
//!
//! What a price study asks, and the grammar of its file, are in `study_text`, and found here too.
#![tactic(auto)]

mod chords;
mod contribution;
mod cost_curve;
mod generator;
mod limits;
mod plan;
mod priced;
mod row;
mod sample;
mod sample_targets;
mod segments;
mod studies;
mod study_answer;
mod sweeps;

pub use limits::{
    FLOW_RATES, FORBID_CHANCE, LEAST_HOT_TEMPERATURE, LONGEST_STEP, MODULUS, MOST_ROWS,
    MOST_SAMPLE_NUMBER, MOST_SAMPLE_STREAMS, MOST_WORKERS, MULTIPLIER, SAMPLE_CONTRIBUTION,
    TEMPERATURES,
};
pub use plan::SweepPlan;
pub use row::SweepRow;
pub use sample::sample_case;
pub use sample_targets::{SampleRow, sample_row, sample_rows_are_one};
pub use studies::{answers_are_one, price_study, rises_fall};
pub use study_answer::{Segment, StudyAnswer};
pub use study_text::{
    MOST_ITEMS, MOST_SPAN, Study, StudyFault, StudyItem, StudyWhy, read_study,
    study_rows_have_one_outcome,
};
pub use sweeps::{rows_are_one, sweep};
pub use workers::{Gate, OpenGate};
