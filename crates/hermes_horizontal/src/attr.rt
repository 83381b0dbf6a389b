use std::fmt;

/// The attributes of messages, horizontal and supervisory.
#[derive(Clone, Copy, Debug, PartialEq, Eq, Hash)]
pub enum Attr {
    Timestamp,
    /// `Type` of CheckAlive.
    AliveType,
    Id,
    MachineId,
    LaneId,
    InterfaceId,
    Version,
    NotificationCode,
    Severity,
    Description,
    BoardId,
    BoardIdCreatedBy,
    FailedBoard,
    FlippedBoard,
    ProductTypeId,
    TopBarcode,
    BottomBarcode,
    Length,
    Width,
    Thickness,
    ConveyorSpeed,
    TopClearanceHeight,
    BottomClearanceHeight,
    Weight,
    WorkOrderId,
    BatchId,
    TransferState,
    SystemId,
    BoardTransfer,
    QueryId,
    Barcode,
    MagazineId,
    SlotId,
    /// The child that lists the sub boards of a board: no attribute, but refusals name it.
    SubBoards,
    Pos,
    Bc,
    St,
}

impl Attr {
    ghost use Rattle.std.specs.Prelude.{◌≡◌};
    ghost use Rattle.hermes_horizontal.specs.Attrs.{attr_text, opening_of};

    /// The attribute's name.
    pub fn text(self) -> &'static str
        ensures { result.now ≡ attr_text self }
    {
        match self {
            Attr::Timestamp => "Timestamp",
            Attr::AliveType => "Type",
            Attr::Id => "Id",
            Attr::MachineId => "MachineId",
            Attr::LaneId => "LaneId",
            Attr::InterfaceId => "InterfaceId",
            Attr::Version => "Version",
            Attr::NotificationCode => "NotificationCode",
            Attr::Severity => "Severity",
            Attr::Description => "Description",
            Attr::BoardId => "BoardId",
            Attr::BoardIdCreatedBy => "BoardIdCreatedBy",
            Attr::FailedBoard => "FailedBoard",
            Attr::FlippedBoard => "FlippedBoard",
            Attr::ProductTypeId => "ProductTypeId",
            Attr::TopBarcode => "TopBarcode",
            Attr::BottomBarcode => "BottomBarcode",
            Attr::Length => "Length",
            Attr::Width => "Width",
            Attr::Thickness => "Thickness",
            Attr::ConveyorSpeed => "ConveyorSpeed",
            Attr::TopClearanceHeight => "TopClearanceHeight",
            Attr::BottomClearanceHeight => "BottomClearanceHeight",
            Attr::Weight => "Weight",
            Attr::WorkOrderId => "WorkOrderId",
            Attr::BatchId => "BatchId",
            Attr::TransferState => "TransferState",
            Attr::SystemId => "SystemId",
            Attr::BoardTransfer => "BoardTransfer",
            Attr::QueryId => "QueryId",
            Attr::Barcode => "Barcode",
            Attr::MagazineId => "MagazineId",
            Attr::SlotId => "SlotId",
            Attr::SubBoards => "SubBoards",
            Attr::Pos => "Pos",
            Attr::Bc => "Bc",
            Attr::St => "St",
        }
    }

    /// How its assignment begins: a space, its name, and `="`.
    pub fn opening(self) -> &'static str
        ensures { result.now ≡ opening_of self }
    {
        match self {
            Attr::Timestamp => " Timestamp=\"",
            Attr::AliveType => " Type=\"",
            Attr::Id => " Id=\"",
            Attr::MachineId => " MachineId=\"",
            Attr::LaneId => " LaneId=\"",
            Attr::InterfaceId => " InterfaceId=\"",
            Attr::Version => " Version=\"",
            Attr::NotificationCode => " NotificationCode=\"",
            Attr::Severity => " Severity=\"",
            Attr::Description => " Description=\"",
            Attr::BoardId => " BoardId=\"",
            Attr::BoardIdCreatedBy => " BoardIdCreatedBy=\"",
            Attr::FailedBoard => " FailedBoard=\"",
            Attr::FlippedBoard => " FlippedBoard=\"",
            Attr::ProductTypeId => " ProductTypeId=\"",
            Attr::TopBarcode => " TopBarcode=\"",
            Attr::BottomBarcode => " BottomBarcode=\"",
            Attr::Length => " Length=\"",
            Attr::Width => " Width=\"",
            Attr::Thickness => " Thickness=\"",
            Attr::ConveyorSpeed => " ConveyorSpeed=\"",
            Attr::TopClearanceHeight => " TopClearanceHeight=\"",
            Attr::BottomClearanceHeight => " BottomClearanceHeight=\"",
            Attr::Weight => " Weight=\"",
            Attr::WorkOrderId => " WorkOrderId=\"",
            Attr::BatchId => " BatchId=\"",
            Attr::TransferState => " TransferState=\"",
            Attr::SystemId => " SystemId=\"",
            Attr::BoardTransfer => " BoardTransfer=\"",
            Attr::QueryId => " QueryId=\"",
            Attr::Barcode => " Barcode=\"",
            Attr::MagazineId => " MagazineId=\"",
            Attr::SlotId => " SlotId=\"",
            Attr::SubBoards => " SubBoards=\"",
            Attr::Pos => " Pos=\"",
            Attr::Bc => " Bc=\"",
            Attr::St => " St=\"",
        }
    }
}

impl fmt::Display for Attr {
    ghost use Rattle.std.specs.Prelude.{Some};
    ghost use Rattle.hermes_horizontal.specs.Attrs.{attr_text};

    ghost output = { λ attr. Some (attr_text attr) };

    fn fmt<W: fmt::Write>(&self, f: &mut fmt::Formatter<W>) -> fmt::Result {
        f.write_str(self.text())
    }
}
