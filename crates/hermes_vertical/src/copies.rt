//! Messages of their own, equal to others.

ghost use Rattle.std.specs.Prelude.{◌≡◌, IfOk};

use crate::message::{Passage, Question, System, Vertical, VerticalMessage};
use hermes_horizontal::columns::name_copy;
use line_base::{Memory, copied_text};
use std::alloc::Global;

impl VerticalMessage {
    /// An equal message of its own.
    pub fn copy(&self, alloc: Global) -> Result<VerticalMessage, Memory>
        ensures { IfOk result (λ copy. copy ≡ self.now) }
    {
        let body = self.body.copy(alloc)?;
        Ok(VerticalMessage {
            stamp: self.stamp,
            body,
        })
    }
}

impl Vertical {
    /// An equal body of its own.
    pub fn copy(&self, alloc: Global) -> Result<Vertical, Memory>
        ensures { IfOk result (λ copy. copy ≡ self.now) }
    {
        match self {
            Vertical::SupervisoryServiceDescription(system) => {
                let system = system.copy(alloc)?;
                Ok(Vertical::SupervisoryServiceDescription(system))
            }
            Vertical::BoardArrived(passage) => {
                let passage = passage.copy(alloc)?;
                Ok(Vertical::BoardArrived(passage))
            }
            Vertical::BoardDeparted(passage) => {
                let passage = passage.copy(alloc)?;
                Ok(Vertical::BoardDeparted(passage))
            }
            Vertical::QueryWorkOrderInfo { query, question } => {
                let question = question.copy(alloc)?;
                Ok(Vertical::QueryWorkOrderInfo {
                    query: *query,
                    question,
                })
            }
            Vertical::SendWorkOrderInfo {
                query,
                order,
                batch,
                product,
            } => {
                let order = order.copy(alloc)?;
                let batch = copied_text(alloc, batch)?;
                let product = copied_text(alloc, product)?;
                Ok(Vertical::SendWorkOrderInfo {
                    query: *query,
                    order,
                    batch,
                    product,
                })
            }
            Vertical::CheckAlive { ping, id } => {
                let id = copied_text(alloc, id)?;
                Ok(Vertical::CheckAlive { ping: *ping, id })
            }
            Vertical::Notification {
                code,
                severity,
                text,
            } => {
                let text = text.copy(alloc)?;
                Ok(Vertical::Notification {
                    code: *code,
                    severity: *severity,
                    text,
                })
            }
            Vertical::Other(name) => {
                let name = name_copy(alloc, name)?;
                Ok(Vertical::Other(name))
            }
        }
    }
}

impl System {
    /// An equal description of its own.
    pub fn copy(&self, alloc: Global) -> Result<System, Memory>
        ensures { IfOk result (λ copy. copy ≡ self.now) }
    {
        Ok(System {
            system: self.system.copy(alloc)?,
            version: self.version.copy(alloc)?,
            features: self.features,
        })
    }
}

impl Passage {
    /// An equal passage of its own.
    pub fn copy(&self, alloc: Global) -> Result<Passage, Memory>
        ensures { IfOk result (λ copy. copy ≡ self.now) }
    {
        Ok(Passage {
            machine: self.machine.copy(alloc)?,
            lane: self.lane,
            how: self.how,
            id: self.id,
        })
    }
}

impl Question {
    /// An equal question of its own, as where what is asked is kept too.
    pub fn copy(&self, alloc: Global) -> Result<Question, Memory>
        ensures { IfOk result (λ copy. copy ≡ self.now) }
    {
        match self {
            Question::Barcode(barcode) => Ok(Question::Barcode(barcode.copy(alloc)?)),
            Question::Order(order) => Ok(Question::Order(order.copy(alloc)?)),
            Question::Place { magazine, slot } => {
                let magazine = magazine.copy(alloc)?;
                Ok(Question::Place {
                    magazine,
                    slot: *slot,
                })
            }
        }
    }
}
