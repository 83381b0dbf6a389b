ghost use Rattle.std.specs.Prelude.{◌≡◌};
ghost use Rattle.config_service.specs.Names.{attr_text};

use std::fmt;

/// The attributes of the service's messages and of their root.
#[derive(Clone, Copy, Debug, PartialEq, Eq)]
pub enum ConfigAttr {
    Timestamp,
    UpstreamAddress,
    DownstreamPort,
    NotificationCode,
    Severity,
    Description,
}

impl ConfigAttr {
    /// The attribute's name.
    pub fn text(self) -> &'static str
        ensures { result.now ≡ attr_text self }
    {
        match self {
            ConfigAttr::Timestamp => "Timestamp",
            ConfigAttr::UpstreamAddress => "UpstreamAddress",
            ConfigAttr::DownstreamPort => "DownstreamPort",
            ConfigAttr::NotificationCode => "NotificationCode",
            ConfigAttr::Severity => "Severity",
            ConfigAttr::Description => "Description",
        }
    }
}

impl fmt::Display for ConfigAttr {
    ghost use Rattle.std.specs.Prelude.{Some};
    ghost use Rattle.config_service.specs.Names.{attr_text};

    ghost output = { λ attr. Some (attr_text attr) };

    fn fmt<W: fmt::Write>(&self, f: &mut fmt::Formatter<W>) -> fmt::Result {
        f.write_str(self.text())
    }
}
