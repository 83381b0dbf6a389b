//! Messages of their own, equal to others, and board information that tells nothing.

ghost use Rattle.std.specs.Prelude.{◌≡◌, IfOk, OnOk};
ghost use Rattle.hermes_horizontal.specs.Parts.{no_info};

use crate::message::{Horizontal, Info, Message, Service};
use crate::said::Said;
use board_record::SubBoards;
use line_base::{Memory, Name, copied_text, take_text};
use std::alloc::Global;

impl Message {
    /// An equal message of its own, as where what is heard is handed on too.
    pub fn copy(&self, alloc: Global) -> Result<Message, Memory>
        ensures { IfOk result (λ copy. copy ≡ self.now) }
    {
        let what = self.body.what().copy(alloc)?;
        let body = Said::new(alloc, what)?;
        Ok(Message {
            stamp: self.stamp,
            body,
        })
    }
}

impl Horizontal {
    /// An equal body of its own.
    pub fn copy(&self, alloc: Global) -> Result<Horizontal, Memory>
        ensures { IfOk result (λ copy. copy ≡ self.now) }
    {
        match self {
            Horizontal::CheckAlive { ping, id } => {
                let id = copied_text(alloc, id)?;
                Ok(Horizontal::CheckAlive { ping: *ping, id })
            }
            Horizontal::ServiceDescription(service) => {
                let service = service.copy(alloc)?;
                Ok(Horizontal::ServiceDescription(service))
            }
            Horizontal::Notification {
                code,
                severity,
                text,
            } => {
                let text = text.copy(alloc)?;
                Ok(Horizontal::Notification {
                    code: *code,
                    severity: *severity,
                    text,
                })
            }
            Horizontal::BoardAvailable(board) => {
                let board = board.copy(alloc)?;
                Ok(Horizontal::BoardAvailable(board))
            }
            Horizontal::RevokeBoardAvailable => Ok(Horizontal::RevokeBoardAvailable),
            Horizontal::MachineReady { quality } => {
                Ok(Horizontal::MachineReady { quality: *quality })
            }
            Horizontal::RevokeMachineReady => Ok(Horizontal::RevokeMachineReady),
            Horizontal::StartTransport { id } => Ok(Horizontal::StartTransport { id: *id }),
            Horizontal::StopTransport { state, id } => Ok(Horizontal::StopTransport {
                state: *state,
                id: *id,
            }),
            Horizontal::TransportFinished { state, id } => Ok(Horizontal::TransportFinished {
                state: *state,
                id: *id,
            }),
            Horizontal::BoardForecast(info) => {
                let info = info.copy(alloc)?;
                Ok(Horizontal::BoardForecast(info))
            }
            Horizontal::QueryBoardInfo { top, bottom } => {
                let top = copied_text(alloc, top)?;
                let bottom = copied_text(alloc, bottom)?;
                Ok(Horizontal::QueryBoardInfo { top, bottom })
            }
            Horizontal::SendBoardInfo(info) => {
                let info = info.copy(alloc)?;
                Ok(Horizontal::SendBoardInfo(info))
            }
            Horizontal::Other(name) => {
                let name = name_copy(alloc, name)?;
                Ok(Horizontal::Other(name))
            }
        }
    }
}

impl Service {
    /// An equal description of its own.
    pub fn copy(&self, alloc: Global) -> Result<Service, Memory>
        ensures { IfOk result (λ copy. copy ≡ self.now) }
    {
        Ok(Service {
            machine: self.machine.copy(alloc)?,
            lane: self.lane,
            version: self.version.copy(alloc)?,
            interface: copied_text(alloc, &self.interface)?,
            features: self.features,
        })
    }
}

impl Info {
    /// Equal board information of its own.
    pub fn copy(&self, alloc: Global) -> Result<Info, Memory>
        ensures { IfOk result (λ copy. copy ≡ self.now) }
    {
        let mut copy = Info {
            id: self.id,
            created_by: None,
            quality: self.quality,
            flip: self.flip,
            product: None,
            top: None,
            bottom: None,
            length: self.length,
            width: self.width,
            thickness: self.thickness,
            speed: self.speed,
            top_clearance: self.top_clearance,
            bottom_clearance: self.bottom_clearance,
            weight: self.weight,
            order: None,
            batch: None,
            subs: self.subs.copy()?,
        };
        copy.take_texts(alloc, self)?;
        Ok(copy)
    }

    /// Copies the texts that other board information has.
    fn take_texts(&mut self, alloc: Global, other: &Info) -> Result<(), Memory>
        ensures { OnOk result
            (self.new
            ≡ record self.old {
              created_by = other.now.created_by;
              product = other.now.product;
              top = other.now.top;
              bottom = other.now.bottom;
              order = other.now.order;
              batch = other.now.batch;
            }) }
    {
        take_text(alloc, &other.created_by, &mut self.created_by)?;
        take_text(alloc, &other.product, &mut self.product)?;
        take_text(alloc, &other.top, &mut self.top)?;
        take_text(alloc, &other.bottom, &mut self.bottom)?;
        take_text(alloc, &other.order, &mut self.order)?;
        take_text(alloc, &other.batch, &mut self.batch)?;
        Ok(())
    }
}

/// Board information that tells nothing, as for a board that isn't known.
pub fn no_info() -> Info
    ensures { result ≡ no_info }
{
    Info {
        id: None,
        created_by: None,
        quality: None,
        flip: None,
        product: None,
        top: None,
        bottom: None,
        length: None,
        width: None,
        thickness: None,
        speed: None,
        top_clearance: None,
        bottom_clearance: None,
        weight: None,
        order: None,
        batch: None,
        subs: SubBoards::new(),
    }
}

/// An equal name of its own.
pub fn name_copy(alloc: Global, name: &Name) -> Result<Name, Memory>
    ensures { IfOk result (λ copy. copy ≡ name.now) }
{
    Name::of(alloc, name.bytes())
}
