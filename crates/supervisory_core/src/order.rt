use hermes_vertical::Question;
use line_base::Text;

/// A question for a work order, and its first answer, where one came.
#[derive(Debug, Drop)]
pub struct Order {
    pub question: Question,
    pub answer: Option<Text>,
}
