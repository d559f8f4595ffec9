// The kinds of items that a datagram has.
ghost use Rattle.std.specs.Prelude.{◌≡◌};
ghost use Rattle.rtcp_wire.specs.declared.packet.Rtcp.{Rtcp};

use crate::feedback::AppSpecificFeedback;
use crate::nack::Nack;
use crate::packet::Rtcp;
use crate::remb::Remb;
use crate::request::{Fir, Pli};
use rtcp_items::{Descriptions, ExtendedReport, Goodbye, ReceiverReport, SenderReport};
use twcc_core::Twcc;

// What stands in an item of one kind.
pub trait Kind: Drop {
    // The item.
    ghost item_of: { Self → Rtcp };

    fn into_item(self) -> Rtcp
        ensures { result ≡ item_of self };
}

impl Kind for SenderReport {
    ghost use Rattle.rtcp_wire.specs.declared.packet.Rtcp.TheVariants.{SenderReport as sender_report_item};

    ghost item_of = { sender_report_item };

    fn into_item(self) -> Rtcp {
        Rtcp::SenderReport(self)
    }
}

impl Kind for ReceiverReport {
    ghost use Rattle.rtcp_wire.specs.declared.packet.Rtcp.TheVariants.{ReceiverReport as receiver_report_item};

    ghost item_of = { receiver_report_item };

    fn into_item(self) -> Rtcp {
        Rtcp::ReceiverReport(self)
    }
}

impl Kind for Descriptions {
    ghost use Rattle.rtcp_wire.specs.declared.packet.Rtcp.TheVariants.{SourceDescription as source_description_item};

    ghost item_of = { source_description_item };

    fn into_item(self) -> Rtcp {
        Rtcp::SourceDescription(self)
    }
}

impl Kind for Goodbye {
    ghost use Rattle.rtcp_wire.specs.declared.packet.Rtcp.TheVariants.{Goodbye as goodbye_item};

    ghost item_of = { goodbye_item };

    fn into_item(self) -> Rtcp {
        Rtcp::Goodbye(self)
    }
}

impl Kind for ExtendedReport {
    ghost use Rattle.rtcp_wire.specs.declared.packet.Rtcp.TheVariants.{ExtendedReport as extended_report_item};

    ghost item_of = { extended_report_item };

    fn into_item(self) -> Rtcp {
        Rtcp::ExtendedReport(self)
    }
}

impl Kind for Nack {
    ghost use Rattle.rtcp_wire.specs.declared.packet.Rtcp.TheVariants.{Nack as nack_item};

    ghost item_of = { nack_item };

    fn into_item(self) -> Rtcp {
        Rtcp::Nack(self)
    }
}

impl Kind for Pli {
    ghost use Rattle.rtcp_wire.specs.declared.packet.Rtcp.TheVariants.{Pli as pli_item};

    ghost item_of = { pli_item };

    fn into_item(self) -> Rtcp {
        Rtcp::Pli(self)
    }
}

impl Kind for Fir {
    ghost use Rattle.rtcp_wire.specs.declared.packet.Rtcp.TheVariants.{Fir as fir_item};

    ghost item_of = { fir_item };

    fn into_item(self) -> Rtcp {
        Rtcp::Fir(self)
    }
}

impl Kind for Twcc {
    ghost use Rattle.rtcp_wire.specs.declared.packet.Rtcp.TheVariants.{Twcc as twcc_item};

    ghost item_of = { twcc_item };

    fn into_item(self) -> Rtcp {
        Rtcp::Twcc(self)
    }
}

impl Kind for Remb {
    ghost use Rattle.rtcp_wire.specs.declared.packet.Rtcp.TheVariants.{Remb as remb_item};

    ghost item_of = { remb_item };

    fn into_item(self) -> Rtcp {
        Rtcp::Remb(self)
    }
}

impl Kind for AppSpecificFeedback {
    ghost use Rattle.rtcp_wire.specs.declared.packet.Rtcp.TheVariants.{AppSpecificFeedback as app_specific_feedback_item};

    ghost item_of = { app_specific_feedback_item };

    fn into_item(self) -> Rtcp {
        Rtcp::AppSpecificFeedback(self)
    }
}
