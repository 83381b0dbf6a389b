ghost use Rattle.std.specs.Prelude.{◌≡◌, IfOk, OnOk};
ghost use Rattle.board_record.specs.Record.{plain_record};

use crate::id::BoardId;
use crate::sub_boards::SubBoards;
use line_base::{Decimal, Flip, Memory, Quality, Text, take_text};
use std::alloc::Global;

/// What is known of a board. It goes with the board down the line.
#[derive(Debug, PartialEq, Eq, Drop)]
pub struct Record {
    pub id: BoardId,
    /// The id text of the machine that made the id.
    pub created_by: Text,
    pub quality: Quality,
    pub flip: Flip,
    /// The product type.
    pub product: Option<Text>,
    /// The barcode on the top side.
    pub top: Option<Text>,
    /// The barcode on the bottom side.
    pub bottom: Option<Text>,
    pub length: Option<Decimal>,
    pub width: Option<Decimal>,
    pub thickness: Option<Decimal>,
    /// The conveyor's speed.
    pub speed: Option<Decimal>,
    pub top_clearance: Option<Decimal>,
    pub bottom_clearance: Option<Decimal>,
    pub weight: Option<Decimal>,
    /// The work order.
    pub order: Option<Text>,
    pub batch: Option<Text>,
    /// The circuits of a panel that carries several.
    pub subs: SubBoards,
}

impl Record {
    /// A board of which nothing is known but its id, who made it, and maybe its top barcode.
    pub fn plain(id: BoardId, created_by: Text, top: Option<Text>) -> Record
        ensures { result ≡ plain_record id created_by top }
    {
        Record {
            id,
            created_by,
            quality: Quality::Unknown,
            flip: Flip::Unknown,
            product: None,
            top,
            bottom: None,
            length: None,
            width: None,
            thickness: None,
            speed: None,
            top_clearance: None,
            bottom_clearance: None,
            weight: None,
            order: None,
            batch: None,
            subs: SubBoards::new(),
        }
    }

    /// An equal record of its own, but for the sub boards, which it shares.
    pub fn copy(&self, alloc: Global) -> Result<Record, Memory>
        ensures { IfOk result (λ copy. copy ≡ self.now) }
    {
        let mut copy = Record {
            id: self.id,
            created_by: self.created_by.copy(alloc)?,
            quality: self.quality,
            flip: self.flip,
            product: None,
            top: None,
            bottom: None,
            length: self.length,
            width: self.width,
            thickness: self.thickness,
            speed: self.speed,
            top_clearance: self.top_clearance,
            bottom_clearance: self.bottom_clearance,
            weight: self.weight,
            order: None,
            batch: None,
            subs: self.subs.copy()?,
        };
        copy.take_texts(alloc, self)?;
        Ok(copy)
    }

    /// Copies the texts that another record may have.
    fn take_texts(&mut self, alloc: Global, other: &Record) -> Result<(), Memory>
        ensures { OnOk result
            (self.new
            ≡ record self.old {
              product = other.now.product;
              top = other.now.top;
              bottom = other.now.bottom;
              order = other.now.order;
              batch = other.now.batch;
            }) }
    {
        take_text(alloc, &other.product, &mut self.product)?;
        take_text(alloc, &other.top, &mut self.top)?;
        take_text(alloc, &other.bottom, &mut self.bottom)?;
        take_text(alloc, &other.order, &mut self.order)?;
        take_text(alloc, &other.batch, &mut self.batch)?;
        Ok(())
    }
}
