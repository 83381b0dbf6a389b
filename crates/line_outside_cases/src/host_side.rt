use line_base::Moment;
use line_outside::{
    Address, Clock, FixedClock, Got, HostClock, Opened, Ports, Sent, SocketPorts, Way,
};
use std::alloc::AllocError;
use std::net::{Ipv4Addr, Net, OpenListener, SocketAddr, SocketAddrV4, TcpListener};
use std::time::Duration;
use std::{rt, str, thread};

/// How often a socket is asked, with a pause of a millisecond behind each time.
const ASKS: u32 = 5000;

/// Whether the fixed clock stands at its moment, and the host's clock shows a day after 2020.
pub fn clocks(host: &(impl rt::Clock + Clone + Drop)) -> &'static str {
    let moment = Moment::of_millis(7);
    if FixedClock::new(moment).now() != moment {
        return "the fixed clock moves";
    }
    let Ok(host) = host.clone() else {
        return "no host";
    };
    if HostClock::new(host).now() < Moment::of_millis(1_577_836_800_000) {
        return "the host's clock is wrong";
    }
    "right"
}

/// Two ends on this machine: one listens for its downstream neighbour, the other connects. Each
/// line of what they found.
pub fn sockets<R>(host: &R) -> &'static str
where
    R: Net + rt::Clock + Clone + Drop,
{
    let Some(port) = free_port(host) else {
        return "no port is free";
    };
    let Ok(one) = host.clone() else {
        return "no host";
    };
    let Ok(other) = host.clone() else {
        return "no host";
    };
    let mut server = SocketPorts::new(one);
    let mut client = SocketPorts::new(other);
    let said = both(host, &mut server, &mut client, port);
    drop(client);
    drop(server);
    said
}

/// Whether another address of this computer reaches who listens at every address, and not who
/// listens at the loopback.
pub fn reach<R>(host: &R) -> &'static str
where
    R: Net + rt::Clock + Clone + Drop,
{
    let Some(port) = free_port(host) else {
        return "no port is free";
    };
    if found_elsewhere(host, Address::at_loopback(port)) != Some(Got::Closed) {
        return "the loopback is reached from elsewhere";
    }
    if found_elsewhere(host, Address::at_all(port)) != Some(Got::Arrived) {
        return "not every address is reached";
    }
    "right"
}

/// What another address of this computer finds, where somebody listens.
fn found_elsewhere<R>(host: &R, listens: Address) -> Option<Got>
where
    R: Net + rt::Clock + Clone + Drop,
{
    let Ok(one) = host.clone() else {
        return None;
    };
    let Ok(other) = host.clone() else {
        return None;
    };
    let mut server = SocketPorts::new(one);
    let mut client = SocketPorts::new(other);
    let found = found_between(host, &mut server, &mut client, listens);
    drop(client);
    drop(server);
    found
}

/// What the client finds at another address of this computer, where the server listens.
fn found_between<R: Net + rt::Clock + Drop>(
    host: &R,
    server: &mut SocketPorts<R>,
    client: &mut SocketPorts<R>,
    listens: Address,
) -> Option<Got> {
    if server.listen(Way::Panel, listens) != Opened::Done {
        return None;
    }
    let elsewhere = Address {
        host: [127, 0, 0, 2],
        port: listens.port,
    };
    match client.connect(Way::Upstream, elsewhere) {
        Opened::Done => Some(found(host, client, Way::Upstream)),
        Opened::Failed => Some(Got::Closed),
    }
}

/// A port at which nobody listens now.
fn free_port(host: &impl Net) -> Option<u16> {
    let any = SocketAddr::V4(SocketAddrV4::new(Ipv4Addr::LOCALHOST, 0));
    let listener = TcpListener::bind(host, any).ok()?;
    let address = listener.local_addr().ok()?;
    Some(address.port())
}

fn both<R: Net + rt::Clock + Drop>(
    host: &R,
    server: &mut SocketPorts<R>,
    client: &mut SocketPorts<R>,
    port: u16,
) -> &'static str {
    let address = Address::at_loopback(port);
    if server.listen(Way::Downstream, address) != Opened::Done {
        return "can't listen";
    }
    if client.connect(Way::Upstream, address) != Opened::Done {
        return "can't connect";
    }
    if found(host, client, Way::Upstream) != Got::Arrived
        || found(host, server, Way::Downstream) != Got::Arrived
    {
        return "no connection";
    }
    if client.send(Way::Upstream, b"hello") != Sent::Took(5) {
        return "can't send";
    }
    if found(host, server, Way::Downstream) != Got::Bytes(5) {
        return "no bytes";
    }
    second(host, server, client, address)
}

/// Another connection is refused with a text, and the first goes on until it is closed.
fn second<R: Net + rt::Clock + Drop>(
    host: &R,
    server: &mut SocketPorts<R>,
    client: &mut SocketPorts<R>,
    address: Address,
) -> &'static str {
    if client.connect(Way::Panel, address) != Opened::Done {
        return "can't connect again";
    }
    if found(host, server, Way::Downstream) != Got::Second {
        return "no second connection";
    }
    if server.refuse(Way::Downstream, b"no") != Sent::Took(2) {
        return "can't refuse";
    }
    if found(host, client, Way::Panel) != Got::Arrived
        || found(host, client, Way::Panel) != Got::Bytes(2)
    {
        return "no refusal";
    }
    if found(host, client, Way::Panel) != Got::Closed {
        return "the refused connection goes on";
    }
    client.close(Way::Upstream);
    if found(host, server, Way::Downstream) != Got::Closed {
        return "no close";
    }
    "right"
}

/// What a way has, once it has something.
fn found<R: Net + rt::Clock + Drop>(host: &R, ports: &mut SocketPorts<R>, way: Way) -> Got {
    for _ in 0..ASKS {
        let got = found_now(ports, way);
        if got != Got::NotYet {
            return got;
        }
        thread::sleep(host, Duration::from_millis(1));
    }
    Got::NotYet
}

fn found_now<R: Net + rt::Clock + Drop>(ports: &mut SocketPorts<R>, way: Way) -> Got {
    let mut room = [0u8; 64];
    ports.poll(way, &mut room)
}
