// The types that every layer shares, and the methods of these types. What they mean is in specs/.
#![tactic(auto)]

ghost use Rattle.std.specs.Prelude.{◌≡◌, ◌<◌, ◌≤◌};
ghost use Rattle.paper.specs.Ids.{no_more_ids};
ghost use Rattle.paper.specs.Stores.{issued};
ghost use Rattle.paper.specs.Tables.{get_page_id};
ghost use Rattle.paper.specs.Answers.{number_of, Numbers, answer_number};
ghost use Rattle.paper.specs.Requests.{make_header, put_page_id, set_header_expiry, facts_of};

// 1 to 2,147,483,647; 0 is NullId. No invariant: a border takes any number, and one out of range names no file.
#[derive(Clone, Copy, PartialEq, Eq, Debug)]
pub struct FileId(pub u32);

// 1 to the bank's slot count, the slot's number; 0 is NullPageId. No invariant: any bytes read as a header.
#[derive(Clone, Copy, PartialEq, Eq, Debug)]
pub struct PageId(pub u16);

// 0 to 15. No invariant: a border takes any byte, and refuses one above 15.
#[derive(Clone, Copy, PartialEq, Eq, Debug)]
pub struct PageNum(pub u8);

#[derive(Clone, Copy, PartialEq, Eq, Debug)]
pub struct Control {
    pub next: u32,
    pub clock: u32,
}

#[derive(Clone, Copy, PartialEq, Eq, Debug)]
pub struct Issued {
    pub id: FileId,
    pub control: Control,
}

impl Control {
    // Issues next id and raises it by 1 in the same step.
    pub fn issue(mut self) -> Issued
        requires { self.next < no_more_ids }
        ensures { result ≡ issued self }
    {
        let n = self.next;
        self.next = n + 1;
        Issued {
            id: FileId(n),
            control: self,
        }
    }
}

#[derive(Clone, Copy, PartialEq, Eq, Debug)]
pub struct Header {
    pub used: bool,
    pub id: FileId,
    pub owner: u16,
    pub created: u32,
    pub updated: u32,
    pub expires: u32,
    pub pages: [PageId; 16],
}

impl Header {
    // Without pages; its id comes from the step that stores it.
    pub fn new(time: u32, client: u16, expires: u32) -> Self
        ensures { result ≡ make_header time client expires }
    {
        Header {
            used: true,
            id: FileId(0),
            owner: client,
            created: time,
            updated: time,
            expires,
            pages: [PageId(0); 16],
        }
    }

    pub fn with_page(mut self, time: u32, number: PageNum, id: PageId) -> Self
        requires { number.0 ≤ 15 }
        ensures { result ≡ put_page_id time number id self }
    {
        self.updated = time;
        self.pages[usize::from(number.0)] = id;
        self
    }

    pub fn with_expiry(mut self, time: u32, expires: u32) -> Self
        ensures { result ≡ set_header_expiry time expires self }
    {
        self.updated = time;
        self.expires = expires;
        self
    }

    pub fn page(&self, number: PageNum) -> PageId
        requires { number.0 ≤ 15 }
        ensures { result ≡ get_page_id self.now number }
    {
        self.pages[usize::from(number.0)]
    }
}

#[derive(Clone, Copy, PartialEq, Eq, Debug)]
pub struct Facts {
    pub owner: u16,
    pub created: u32,
    pub updated: u32,
    pub expires: u32,
}

impl From<Header> for Facts {
    ghost from_gives = { λ h f. f ≡ facts_of h };

    fn from(h: Header) -> Facts {
        Facts {
            owner: h.owner,
            created: h.created,
            updated: h.updated,
            expires: h.expires,
        }
    }
}

// How many slots a Scavenge zeroed.
#[derive(Clone, Copy, PartialEq, Eq, Debug)]
pub struct Swept {
    pub headers: u32,
    pub pages: u32,
}

// A bank of page slots: how many there are, and how many bytes of contents each has.
#[derive(Clone, Copy, PartialEq, Eq, Debug)]
pub struct Bank {
    pub slots: usize,
    pub size: usize,
}

// The bank of document 01.
pub const STANDARD: Bank = Bank {
    slots: 256,
    size: 120,
};

// The answers that are no Success, in the order of their numbers.
#[derive(Clone, Copy, PartialEq, Eq, Debug)]
pub enum Refusal {
    BadCall,
    Damaged,
    ClockBack,
    NoSuchFile,
    NotOwner,
    NoSuchPage,
    NoSpace,
    NoIds,
    ServiceError,
    Cut,
}

impl From<Refusal> for u8 {
    ghost from_gives = { λ r n. n ≡ number_of r };

    fn from(r: Refusal) -> u8 {
        match r {
            Refusal::BadCall => 1,
            Refusal::Damaged => 2,
            Refusal::ClockBack => 3,
            Refusal::NoSuchFile => 4,
            Refusal::NotOwner => 5,
            Refusal::NoSuchPage => 6,
            Refusal::NoSpace => 7,
            Refusal::NoIds => 8,
            Refusal::ServiceError => 9,
            Refusal::Cut => 10,
        }
    }
}

// A number that no refusal has.
#[derive(Clone, Copy, PartialEq, Eq, Debug)]
pub struct UnknownNumber(pub u8);

impl TryFrom<u8> for Refusal {
    type Error = UnknownNumber;

    ghost try_from_gives = { Numbers };

    fn try_from(number: u8) -> Result<Self, UnknownNumber> {
        match number {
            1 => Ok(Refusal::BadCall),
            2 => Ok(Refusal::Damaged),
            3 => Ok(Refusal::ClockBack),
            4 => Ok(Refusal::NoSuchFile),
            5 => Ok(Refusal::NotOwner),
            6 => Ok(Refusal::NoSuchPage),
            7 => Ok(Refusal::NoSpace),
            8 => Ok(Refusal::NoIds),
            9 => Ok(Refusal::ServiceError),
            10 => Ok(Refusal::Cut),
            _ => Err(UnknownNumber(number)),
        }
    }
}

// The number of an answer, 0 for Success.
pub fn number<T>(answer: &Result<T, Refusal>) -> u8
    ensures { result ≡ answer_number answer.now }
{
    match answer {
        Ok(_) => 0,
        Err(r) => u8::from(*r),
    }
}
