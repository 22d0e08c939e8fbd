use pgs_base::Labels;

/// The labels of three frames.
#[derive(Drop)]
pub(crate) struct LabelsOfThree {
    pub source: Labels,
    pub middle: Labels,
    pub target: Labels,
}
